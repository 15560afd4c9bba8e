// The engine: every call of the library on a state, by one name. Each is proved where it stands.
#![tactic(auto)]

pub use engine_jobs::{arrive, done};
pub use engine_state::{active, fresh, margin, no_state};
pub use engine_time::{advance, ask, walk};
