//! The formula of a closed tableau is true in each structure of its setting. Laws, without code.
#![tactic(auto)]
