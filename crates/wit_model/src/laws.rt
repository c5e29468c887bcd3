//! Laws: what holds of every legal history and of every world. Each function is a theorem, and does
//! nothing.

pub mod gates;
pub mod groups;
pub mod histories;
pub mod migrations;
pub mod rules;
pub mod scenes;
pub mod verdicts;
pub mod worlds;
