// Days of calls, each as the definitions compute it beside what is stated; and answers that demand 3 refuses. No function.
#![tactic(auto)]
