// The figures of docs/SPECIFICATION.md 12, each as the definitions compute it beside what is stated. No function.
#![tactic(auto)]
