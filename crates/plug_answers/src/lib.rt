// What a caller in C is told, and what one can get wrong before a chip or a master is asked. Every entry of the C interface answers with these.
#![tactic(auto, unfolding(crate::specs::Answers::answered, crate::specs::Answers::next_answered, crate::specs::Answers::is_answer, crate::specs::Answers::is_number_buffer, crate::specs::Answers::eight_of, crate::specs::Calls::reply_judged, crate::specs::Calls::is_reply))]

pub mod answer;
pub mod calls;
