// Tests of the sets, the search and the judge as their callers see them.
#![tactic(auto)]

pub mod inclusion_label;
#[cfg(test)]
mod judge_cases;
#[cfg(test)]
mod kinds;
#[cfg(test)]
mod label_cases;
#[cfg(test)]
mod networks;
#[cfg(test)]
mod order_cases;
#[cfg(test)]
mod plain;
#[cfg(test)]
mod refusal_cases;
#[cfg(test)]
mod row_cases;
#[cfg(test)]
mod set_cases;
#[cfg(test)]
mod sets_of;
#[cfg(test)]
mod store_cases;
#[cfg(test)]
mod strip_cases;

pub use inclusion_label::InclusionLabel;
