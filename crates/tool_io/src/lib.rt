// What jobtool does with files and messages: words of the command line, names as they are shown, inputs read whole, outputs put in
// their place when whole.
#![tactic(auto)]

pub mod input;
pub mod messages;
pub mod names;
pub mod output;
pub mod words;
