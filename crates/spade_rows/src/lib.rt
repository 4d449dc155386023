// The Rust's own answers on a chart, as theorems about the definitions: everything is in specs/.
#![tactic(auto)]
