//! Tests of `clients`, by what it makes public.
#![tactic(auto)]

#[cfg(test)]
mod collected;
#[cfg(test)]
mod failing_host;
#[cfg(test)]
mod samples;
#[cfg(test)]
mod submitted;
