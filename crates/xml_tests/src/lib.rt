//! Tests of the public interface of `xml_items`.
#![tactic(auto)]

#[cfg(test)]
mod items;
