// A message as DER writes it: definitions and theorems only. The code is in `writer`.
#![tactic(auto)]
