//! The calls of the layers from spv_layout to spv_verdict, each made once with ample memory, and with growths refused;
//! the verdict line by readers and writers that fail; and what is told of values, beside a plain program. What else
//! each call tells of a module is shown by the program.
#![tactic(auto)]

#[cfg(test)]
mod compared;
#[cfg(test)]
mod graphs;
#[cfg(test)]
mod layers;
#[cfg(test)]
mod messages;
#[cfg(test)]
mod plain;
#[cfg(test)]
mod refused;
#[cfg(test)]
mod streams;
