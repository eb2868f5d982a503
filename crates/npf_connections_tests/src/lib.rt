// The tests of tables of connections, each over any table, through the calls of `Connections`
// alone, and put to each that there is: under one turn, and without locks, with the program's hash
// and with one hash of all keys. Expected values are counted by hand. What is answered is put into
// lines of text, which are compared.
#![tactic(auto)]

#[cfg(test)]
mod acts;
#[cfg(test)]
mod answers;
#[cfg(test)]
mod asking;
#[cfg(test)]
mod cases;
#[cfg(test)]
mod contending;
#[cfg(test)]
mod crowd;
#[cfg(test)]
mod returning;
#[cfg(test)]
mod second_pass;
#[cfg(test)]
mod sharing;
#[cfg(test)]
mod sum;
