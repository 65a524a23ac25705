//! What a session over a volume is: its answers, and what its disk may hold at each moment and in the end.
#![tactic(auto)]

mod course_laws;
mod making;
mod runs;
mod session_making;
mod status;

pub use course_laws::{
    acknowledged_first, exit_stands, faults_are_exact, given_are_told, next_is, reads_keep,
    states_are_reached, stop_is_counted,
};
pub use making::{joined, no_course, one_last, one_more, one_refused, one_told};
pub use runs::{any_moment, second_answers, two_runs};
pub use session_making::{
    opening_then, served_is_reached, served_runs, session_last, session_then, session_told,
};
pub use status::Status;
