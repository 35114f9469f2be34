//! Tables of operators with what is left behind them, or where they are refused.
#![tactic(auto)]

#[cfg(test)]
mod qop_tests;
