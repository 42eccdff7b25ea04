//! Configuration files and what is due for each: tests of the reading of configurations, on which nothing stands.
#![tactic(auto)]

#[cfg(test)]
mod tests;
#[cfg(test)]
mod tests_columns;
#[cfg(test)]
mod tests_conflicts;
#[cfg(test)]
mod tests_faults;
#[cfg(test)]
mod tests_limits;
#[cfg(test)]
mod tests_order;
#[cfg(test)]
mod tests_printed;
#[cfg(test)]
mod tests_routers;
#[cfg(test)]
mod tests_sections;
#[cfg(test)]
mod tests_transforms;
#[cfg(test)]
mod tests_whole;
#[cfg(test)]
mod tests_words;
