// No code: what accepted files and values have for widths stands in specs/, over bytes, and its proofs in proofs/.

#![tactic(auto)]
