//! What a node is and what a world of nodes does, as definitions: acts, states, the answers of a
//! node's calls, lanes and messages; and worlds, their events, and when their nodes are in step.
//! They stand in `specs/history` and `specs/world`.
#![tactic(auto)]
