// The call in words of squads: the numbers that it takes, and the text of what it answers.
#![tactic(auto)]

pub mod count; // squads WHOLE SQUAD
