// What is asked of the rows' texts.
use crate::again::random_texts;
use crate::answer::Answer;
use crate::reading::{ifaces_of, model_of, rule_of, shown, tokens_of, tree_of};
use crate::row::Row;
use crate::table::{add, has, read_table, remove};
use npf_faults::Refused;
use npf_model::Kind;
use npf_table::Table;
use npf_types::NoMemory;
use std::alloc::Global;

/// What later rows go by: the text in front of a configuration, or beside a rule; the file of interfaces; and a table.
#[derive(Drop)]
pub struct Given {
    front: Vec<u8>,
    ifaces: Vec<u8>,
    table: Option<Table>,
}

impl Given {
    pub fn new(alloc: Global) -> Given {
        Given {
            front: Vec::new(alloc),
            ifaces: Vec::new(alloc),
            table: None,
        }
    }

    /// The answer to a row, or why its text is refused.
    pub fn answer(&mut self, alloc: Global, row: &Row) -> Result<Answer, Refused> {
        match row.asked() {
            "faults" => Ok(Answer::Faults),
            "tokens" => tokens(alloc, row.text.as_slice()),
            "tree" => statements(alloc, row.text.as_slice()),
            "definition" => Ok(Answer::Definition(tree_of(alloc, row.text.as_slice())?)),
            "given" => Ok(self.put_front(alloc, row.text.as_slice())?),
            "interfaces" => self.put_ifaces(alloc, row.text.as_slice()),
            "config" => self.accept(alloc, row.text.as_slice()),
            "show" => self.show(alloc, row.text.as_slice()),
            "numbers" => self.number(alloc, row.text.as_slice()),
            "rule" => self.rule(alloc, row.text.as_slice()),
            "random" => random_texts(alloc, self.ifaces.as_slice(), row.written()),
            "ipset" => self.put_table(alloc, Kind::Ipset, row.text.as_slice()),
            "lpm" => self.put_table(alloc, Kind::Lpm, row.text.as_slice()),
            "const" => self.put_table(alloc, Kind::Const, row.text.as_slice()),
            "has" => Ok(has(alloc, &self.table, row.written())?),
            "add" => Ok(add(alloc, &self.table, row.written())?),
            "remove" => Ok(remove(alloc, &self.table, row.written())?),
            _ => Ok(Answer::NoSuchRow),
        }
    }

    fn put_front(&mut self, alloc: Global, text: &[u8]) -> Result<Answer, NoMemory> {
        self.front = text.to_vec(alloc)?;
        Ok(Answer::Given(text.iter().filter(|byte| **byte == b'\n').count()))
    }

    fn put_ifaces(&mut self, alloc: Global, file: &[u8]) -> Result<Answer, Refused> {
        self.ifaces = file.to_vec(alloc).map_err(NoMemory::from)?;
        match ifaces_of(alloc, file) {
            Ok(ifaces) => Ok(Answer::Ifaces(ifaces)),
            Err(Refused::Fault(fault)) => Ok(Answer::Fault(fault)),
            Err(refused) => Err(refused),
        }
    }

    fn put_table(&mut self, alloc: Global, kind: Kind, file: &[u8]) -> Result<Answer, Refused> {
        match read_table(alloc, kind, file) {
            Ok(table) => {
                let answer = Answer::Entries(table.len());
                self.table = Some(table);
                Ok(answer)
            }
            Err(fault) => Ok(Answer::TableFault(fault)),
        }
    }

    fn accept(&self, alloc: Global, text: &[u8]) -> Result<Answer, Refused> {
        let whole = self.behind_front(alloc, text)?;
        let _model = model_of(alloc, self.ifaces.as_slice(), whole.as_slice())?;
        Ok(Answer::Accepted)
    }

    fn show(&self, alloc: Global, text: &[u8]) -> Result<Answer, Refused> {
        let whole = self.behind_front(alloc, text)?;
        Ok(Answer::Shown(shown(alloc, self.ifaces.as_slice(), whole.as_slice())?))
    }

    fn number(&self, alloc: Global, text: &[u8]) -> Result<Answer, Refused> {
        let whole = self.behind_front(alloc, text)?;
        Ok(Answer::Numbers(model_of(alloc, self.ifaces.as_slice(), whole.as_slice())?))
    }

    fn rule(&self, alloc: Global, text: &[u8]) -> Result<Answer, Refused> {
        let model = model_of(alloc, self.ifaces.as_slice(), self.front.as_slice())?;
        Ok(Answer::Rule(rule_of(alloc, self.ifaces.as_slice(), &model, text)?))
    }

    fn behind_front(&self, alloc: Global, text: &[u8]) -> Result<Vec<u8>, NoMemory> {
        let mut whole = self.front.as_slice().to_vec(alloc)?;
        whole.extend_from_slice(text)?;
        Ok(whole)
    }
}

fn tokens(alloc: Global, text: &[u8]) -> Result<Answer, Refused> {
    match tokens_of(alloc, text) {
        Ok(tokens) => Ok(Answer::Tokens(tokens)),
        Err(Refused::Fault(fault)) => Ok(Answer::Fault(fault)),
        Err(refused) => Err(refused),
    }
}

fn statements(alloc: Global, text: &[u8]) -> Result<Answer, Refused> {
    let tree = tree_of(alloc, text)?;
    Ok(Answer::Statements(tree.stmts.as_slice().len()))
}
