// Code that the screen passes, run by RFC 9669's steps. No code.
#![tactic(auto)]
