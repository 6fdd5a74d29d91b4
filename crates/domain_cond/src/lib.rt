//! Domain conditions: what constant, cumulative and varying domains ask of gamma terms.
#![tactic(auto)]

mod constant;
mod cumulative;
mod home;
mod homes;
mod leaf;
mod own;
mod ranking;
mod standing;
mod unmet;
mod varying;

pub use constant::ConstantDemand;
pub use cumulative::CumulativeDemand;
pub use leaf::leaves;
pub use varying::VaryingDemand;
