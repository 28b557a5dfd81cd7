// No code: slabs are what a table's volumes are compared with, and stand in specs/.
#![tactic(auto)]
