// A configuration as data.
use crate::group::Group;
use crate::map::Map;
use crate::procedure::Procedure;
use crate::settings::Settings;
use crate::table::TableDecl;
use npf_types::List;

/// What the text of a configuration means: its groups in the order of inspection, the default group last, and its tables,
/// maps and procedures in the order of the text; the settings, and whether errors of ICMP go back through a translation.
#[derive(Debug, Drop)]
pub struct Model {
    pub groups: List<Group>,
    pub tables: List<TableDecl>,
    pub maps: List<Map>,
    pub procedures: List<Procedure>,
    pub settings: Settings,
    pub alg_icmp: bool,
}
