//! Runs of the lessons and generated input, worked out by the definitions alone.
//!
//! Each file of proofs/ takes a script and events, and proves entry by entry what the definitions of
//! `schedule_replay` make of them; `AnswerExample` goes from the bytes of two files to the text that
//! `command_line` owes for them. So the definitions mean what the lessons show. There is no code: the
//! check reads each file that proofs/Lib.antt names.
#![tactic(auto)]
