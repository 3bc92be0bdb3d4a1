//! Tests of the crates of plans, of those below them and of printing, on values made here and on texts.
#![tactic(auto)]

#[cfg(test)]
mod calls;
#[cfg(test)]
mod copies;
#[cfg(test)]
mod evaluation;
#[cfg(test)]
mod formulas;
#[cfg(test)]
mod joint_tables;
#[cfg(test)]
mod needs;
#[cfg(test)]
mod numbering;
#[cfg(test)]
mod object;
#[cfg(test)]
mod outlines;
#[cfg(test)]
mod parts;
#[cfg(test)]
mod printing;
#[cfg(test)]
mod rounds;
#[cfg(test)]
mod same;
#[cfg(test)]
mod sites;
#[cfg(test)]
mod sizes;
#[cfg(test)]
mod slacks;
#[cfg(test)]
mod splits;
#[cfg(test)]
mod tables;
#[cfg(test)]
mod templates;
#[cfg(test)]
mod texts;
#[cfg(test)]
mod values;
#[cfg(test)]
mod walks;
