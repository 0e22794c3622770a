//! Tests of the driver of SD host controllers on the strict controller of `sdhci_model`, over a card in memory.
#![tactic(auto)]

#[cfg(test)]
mod controller;
#[cfg(test)]
mod dma_tests;
#[cfg(test)]
mod hasty;
#[cfg(test)]
mod narrow;
#[cfg(test)]
mod serving;
#[cfg(test)]
mod sweeps;
#[cfg(test)]
mod tests;
