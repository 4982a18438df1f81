// A state, and one step of it by the rule that decides an event.
#![tactic(auto)]

mod ahead;
pub mod five;
mod here;
mod matcher;
mod next;
mod state;

pub use ahead::{RulePlaces, RulesAhead, rule_places, rules_ahead};
pub use here::{Here, here_by, own_of, rule_of};
pub use matcher::{bounds_hold, first_rule};
pub use next::advanced;
pub use state::{Limits, State};
