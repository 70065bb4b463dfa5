// Why a call is denied, and what a denied call answers.
#![tactic(auto)]

pub mod denial;
