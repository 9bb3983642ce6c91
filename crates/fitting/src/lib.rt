// That the tables of a loaded sheet pass the check of tables.
#![tactic(auto)]

pub mod theorems;
