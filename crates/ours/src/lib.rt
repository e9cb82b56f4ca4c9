// The screen passes what this back end makes: theorems over the definitions. No code.
#![tactic(auto)]
