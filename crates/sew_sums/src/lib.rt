// Where sizes add up: the vertex that a 1-sew merges and the edge that a 2-sew merges have exactly the darts of both cells. There is no code here.

#![tactic(auto)]
