// Boards on examples.
#![tactic(auto)]

#[cfg(test)]
mod crops;
#[cfg(test)]
mod frames;
#[cfg(test)]
mod lists;
#[cfg(test)]
mod numbers;
