//! The life of a number and the lock of its company.
#![tactic(auto)]

mod act;
mod life;
mod number_standing;
mod row;

pub use act::LifeAct;
pub use life::judge;
pub use number_standing::NumberStanding;
pub use row::Row;

#[cfg(test)]
mod tests;
