// The way in from C: one entry point for each operation, thin over the proved rooms. Each returns the refusal's number,
// 0 for none; each says what it leaves in what it was lent. `include/siengulot.h` declares them.
#![tactic(auto)]

mod answers;
mod captures;
mod clock;
mod judging;
mod link;
mod logs;
mod picking;
mod plans;
mod receiver;
mod state;
mod surveys;
mod words;

pub use captures::{siengulot_capture_check, siengulot_capture_read, siengulot_capture_write};
pub use clock::{siengulot_time_read, siengulot_time_write};
pub use judging::{
    siengulot_judge, siengulot_judge_ends, siengulot_judge_quiet, siengulot_judge_quiet_ends,
};
pub use link::{
    siengulot_counted, siengulot_plan, siengulot_send, siengulot_settle, siengulot_smooth,
    siengulot_warp, siengulot_warp_by_lengths,
};
pub use logs::{ALL_BYTES, siengulot_log_clear, siengulot_log_event, siengulot_log_list};
pub use picking::{siengulot_pick, siengulot_pick_ends};
pub use plans::siengulot_read_plan;
pub use receiver::{siengulot_fresh, siengulot_listen, siengulot_step, siengulot_well_formed};
pub use state::NUMBERS;
pub use surveys::{siengulot_survey, siengulot_survey_lines};
pub use words::{siengulot_decode, siengulot_encode};
