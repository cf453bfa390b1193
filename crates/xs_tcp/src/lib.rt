//! Connections over TCP: gates whose connections are sockets, the threads that accept and refuse connections, how calls
//! wait while their clients are watched, and the figures of the server.
#![tactic(auto)]

pub mod announcement;
pub mod door;
pub mod figures;
pub mod hall;
pub mod halves;
pub mod information;
pub mod limits;
pub mod patience;
pub mod run_gate;
pub mod serve_gate;
