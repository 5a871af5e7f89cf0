//! Tests of what no command shows, over the small games of `spiel_test_games` and over tables of pays: the layers
//! below judging; and policies and best responses with one player and with three, with a unit, with draws that
//! never come, with the longest plays, and at the edge of 127 bits. All else is told by the rows of `spiel_rows`.
#![tactic(auto)]

#[cfg(test)]
mod games;
#[cfg(test)]
mod joint_steps;
#[cfg(test)]
mod judged;
#[cfg(test)]
mod layers;
#[cfg(test)]
mod lines;
#[cfg(test)]
mod longest;
#[cfg(test)]
mod matrices;
#[cfg(test)]
mod overflow;
#[cfg(test)]
mod policies;
#[cfg(test)]
mod real_files;
#[cfg(test)]
mod shown;
#[cfg(test)]
mod trees;
