//! Controllers' steps: each is a value in a module named as the step (the core size's as `core_size`), whose `answer` reads what the
//! step answers, and whose `apply` makes an accepted answer. `stop` and `maximum` take memory between the two, so they have functions.
#![tactic(auto)]

pub mod cancel;
pub mod core_size;
pub mod core_timeout;
pub mod ended;
pub mod keep;
pub mod maximum;
pub mod prestart;
pub mod purge;
pub mod remove;
pub mod shutdown;
pub mod stop;
pub mod take_done;
pub mod tick;
pub mod tidy;
