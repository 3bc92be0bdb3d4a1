//! Tests of whole runs of the top call, over sources and sinks in memory, of the calls of small workloads one by one, also by
//! their L forms, and of words and streams; of sites, of clients side by side, under gates that hold calls until others are inside,
//! of what is told of their runs, and of what is reached beyond one run: sessions over streams, nodes that send each other packets, in one program or each by itself,
//! and certificates.
#![tactic(auto)]

#[cfg(test)]
mod answers;
#[cfg(test)]
mod boards;
#[cfg(test)]
mod buyers;
#[cfg(test)]
mod certificates;
#[cfg(test)]
mod effects;
#[cfg(test)]
mod faults;
#[cfg(test)]
mod forecasts;
#[cfg(test)]
mod forms;
#[cfg(test)]
mod gates;
#[cfg(test)]
mod lives;
#[cfg(test)]
mod loads;
#[cfg(test)]
mod market;
#[cfg(test)]
mod merges;
#[cfg(test)]
mod outputs;
#[cfg(test)]
mod refusals;
#[cfg(test)]
mod reports;
#[cfg(test)]
mod runs;
#[cfg(test)]
mod same;
#[cfg(test)]
mod sessions;
#[cfg(test)]
mod shops;
#[cfg(test)]
mod sites;
#[cfg(test)]
mod steps;
#[cfg(test)]
mod streams;
#[cfg(test)]
mod texts;
#[cfg(test)]
mod wires;
#[cfg(test)]
mod words;
