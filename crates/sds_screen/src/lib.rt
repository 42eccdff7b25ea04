//! What a person sees of worlds, as definitions: which lines a scenario may have, from its text to
//! its screen and its first bad line; and the generator of long runs with its summary. They stand
//! in `specs`.
#![tactic(auto)]
