// Reading calls with teams: definitions and what holds of them. No code.
#![tactic(auto)]
