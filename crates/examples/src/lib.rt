// Tests of the calls on worked examples and at their limits.
#![tactic(auto)]

#[cfg(test)]
mod by_chapters;
#[cfg(test)]
mod judging;
#[cfg(test)]
mod limits;
#[cfg(test)]
mod listing;
#[cfg(test)]
mod reading;
#[cfg(test)]
mod records;
#[cfg(test)]
mod records_in_words;
#[cfg(test)]
mod replays;
#[cfg(test)]
mod rulings_as_sets;
#[cfg(test)]
mod serving;
#[cfg(test)]
mod support;
