// What lies under the one turn of the table.
use npf_oneturn_store::Store;

/// What lies in the table's slot: the connections, and how many passes are entered.
#[derive(Drop)]
pub struct Contents<S> {
    pub store: Store<S>,
    pub entered: u64,
}
