// No code: what typing a whole file hands back stands in specs/.

#![tactic(auto)]
