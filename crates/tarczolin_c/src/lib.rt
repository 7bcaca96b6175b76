// The calls for C: a function of a crate c_* each, with its signature and its clauses. No function of another crate is called from C.
//
// Written by tests/gate/exports.py.
#![tactic(auto)]

// tarczolin_covers_models: of c_across.
mod covering;
// tarczolin_robust: of c_across.
mod robustness;
// tarczolin_covers, tarczolin_covers_with: of c_extra.
mod against;
// tarczolin_class: of c_extra.
mod class;
// tarczolin_force, tarczolin_force_with: of c_extra.
mod forcing;
// tarczolin_check: of c_graph.
mod check;
// tarczolin_graph: of c_graph.
mod graph;
// tarczolin_judge: of c_graph.
mod judgement;
// tarczolin_rows, tarczolin_rows_after: of c_listing.
mod by_rows;
// tarczolin_start, tarczolin_continue, tarczolin_violation: of c_listing.
mod listed;
// tarczolin_count: of c_listing.
mod tally;
// tarczolin_outcomes, tarczolin_tso_outcomes: of c_outcomes.
mod listed_outcomes;
// tarczolin_open, tarczolin_ask, tarczolin_serve, tarczolin_close, tarczolin_set, tarczolin_return, tarczolin_forget: of c_service.
mod users;
// tarczolin_count_with, tarczolin_violation_with: of c_states.
mod by_states;
// tarczolin_kth, tarczolin_rank: of c_states.
mod members;
// tarczolin_tso_count_with, tarczolin_tso_violation_with: of c_states.
mod tso;
// tarczolin_tso_class: of c_tso.
mod store_class;
// tarczolin_tso_graph: of c_tso.
mod store_graph;
// tarczolin_tso_start, tarczolin_tso_continue, tarczolin_tso_violation: of c_tso.
mod store_listed;
// tarczolin_tso_rows, tarczolin_tso_rows_after: of c_tso.
mod store_rows;
// tarczolin_tso_count: of c_tso.
mod store_tally;
