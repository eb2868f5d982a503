// The tests of the table without locks and of keys in its trie, through the public calls of npf_paths, npf_cells, npf_epoch, npf_pool,
// npf_turn and npf_trie. Expected values are counted by hand: by the digits of npf_paths two keys of one hash part at the first half-byte in which they
// differ, the highest of a key's being of level 15. What is answered is put into lines of text, which are compared.
#![tactic(auto)]

#[cfg(test)]
mod answers;
#[cfg(test)]
mod beside;
#[cfg(test)]
mod building;
#[cfg(test)]
mod by_protocol;
#[cfg(test)]
mod growing;
#[cfg(test)]
mod holders;
#[cfg(test)]
mod keys;
#[cfg(test)]
mod lives;
#[cfg(test)]
mod meeting;
#[cfg(test)]
mod paths;
#[cfg(test)]
mod reader;
#[cfg(test)]
mod slots;
#[cfg(test)]
mod stays;
#[cfg(test)]
mod turning;
#[cfg(test)]
mod works;
