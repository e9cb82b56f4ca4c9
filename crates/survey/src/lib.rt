// A unit read whole and surveyed: its variables, and of each block its id and the place of its terminator.
#![tactic(auto)]

mod occurrences;
mod pass;

ghost use Rattle.std.specs.Prelude.{length, ◌≡◌};
ghost use Rattle.survey.specs.Surveyed.{of_reading, surveyed, surveyed_variables, surveyed_ids, surveyed_endings};

use unitfile::Found;

// Why a unit is not surveyed: the reading refusal, or the place of the record bringing the 57th variable.
#[derive(Drop)]
pub enum Fault {
    Reading(record::Fault),
    TooMany(usize),
}

#[tactic(auto, unfolding(crate::specs::Surveyed::of_reading))]
impl From<record::Fault> for Fault {
    ghost from_gives = { λ f e. e ≡ of_reading f };

    fn from(f: record::Fault) -> Fault {
        Fault::Reading(f)
    }
}

// What an array's copy shows of a lent one: how long it is.
fn fixed(variables: [u32; 56])
    ensures { length variables ≡ 56 }
{}

pub fn survey_unit(
    unit: &[u8],
    variables: &mut [u32; 56],
    ids: &mut [u32],
    endings: &mut [u32],
) -> Result<(Found, usize), Fault>
    ensures value { result ≡ surveyed unit.now }
    ensures variables_after { variables.new ≡ surveyed_variables unit.now variables.old }
    ensures ids_after { ids.new ≡ surveyed_ids unit.now ids.old }
    ensures endings_after { endings.new ≡ surveyed_endings unit.now endings.old }
{
    fixed(*variables);
    let found = unitfile::read_unit(unit)?;
    pass::survey_blocks(unit, found, variables, ids, endings)
}
