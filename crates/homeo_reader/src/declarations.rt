//! Objects, relations and transactions.

ghost use Rattle.std.specs.Prelude.{option_map};
ghost use Rattle.homeo_syntax.specs.SourceView.{plain_relation, plain_transaction};
ghost use Rattle.homeo_reader.specs.inner.Reading.{Gives, same};
ghost use Rattle.homeo_reader.specs.inner.Declarations.{relation_views, transaction_views, object_rest, next_object_read, objects_read, decl_read, first_decl_read, next_decl_read, other_decls_read, fields_read, relation_rest, next_relation_read, relations_read, parameters_read, transaction_rest, next_transaction_read, transactions_read};

use crate::parser::{Fault, Parser, list_of};
use homeo_syntax::{Kind, List, Mark, ObjectDecl, RangeDecl, RelationDecl, Transaction, Version};
use std::alloc::Global;

/// How deep phrases may go.
const LIMIT: u32 = 32;

impl<'a> Parser<'a> {
    /// What follows `object`.
    #[tactic(auto, unfolding(crate::specs::inner::Declarations::object_rest))]
    fn object_after_word(&mut self) -> Result<ObjectDecl, Fault>
        ensures { Gives same result self.new.rest.now (object_rest self.old.rest.now) }
    {
        let name = self.name()?;
        self.expect(Mark::In)?;
        let (lo, hi) = self.range()?;
        self.expect(Mark::Equal)?;
        let start = self.signed()?;
        Ok(ObjectDecl {
            name,
            lo,
            hi,
            start,
        })
    }

    /// An object, if one comes next.
    #[tactic(auto, using(crate::proofs::DeclarationSteps::next_object_reads), unfolding(crate::specs::inner::Declarations::next_object_do))]
    fn next_object(&mut self) -> Result<Option<ObjectDecl>, Fault>
        ensures { Gives same result self.new.rest.now (next_object_read self.old.rest.now) }
    {
        if self.takes(Mark::Object) {
            let object = self.object_after_word()?;
            Ok(Some(object))
        } else {
            Ok(None)
        }
    }

    /// The objects, as many as come.
    pub(crate) fn objects(&mut self, alloc: Global) -> Result<List<ObjectDecl>, Fault>
        ensures { Gives (λ l. l.items) result self.new.rest.now (objects_read self.old.rest.now) }
    {
        let mut items = List::new(alloc);
        'more: while let Some(item) = self.next_object()? {
            items.push(item)?;
        }
        Ok(items)
    }

    /// Takes a name with its range.
    #[tactic(auto, using(crate::proofs::DeclarationSteps::decl_reads), unfolding(crate::specs::inner::Declarations::decl_do))]
    fn decl(&mut self) -> Result<RangeDecl, Fault>
        ensures { Gives same result self.new.rest.now (decl_read self.old.rest.now) }
    {
        let name = self.name()?;
        self.expect(Mark::In)?;
        let (lo, hi) = self.range()?;
        Ok(RangeDecl { name, lo, hi })
    }

    /// A parameter, if one comes next.
    #[tactic(auto, using(crate::proofs::DeclarationSteps::first_decl_reads), unfolding(crate::specs::inner::Declarations::first_decl_do, crate::specs::inner::Declarations::first_decl_by))]
    fn first_decl(&mut self) -> Result<Option<RangeDecl>, Fault>
        ensures { Gives same result self.new.rest.now (first_decl_read self.old.rest.now) }
    {
        match self.rest.split_first() {
            Some((t, _)) => match t.kind {
                Kind::Name(_) => {
                    let decl = self.decl()?;
                    Ok(Some(decl))
                }
                _ => Ok(None),
            },
            None => Ok(None),
        }
    }

    /// A parameter after a comma, if one comes next.
    #[tactic(auto, using(crate::proofs::DeclarationSteps::next_decl_reads), unfolding(crate::specs::inner::Declarations::next_decl_do))]
    fn next_decl(&mut self) -> Result<Option<RangeDecl>, Fault>
        ensures { Gives same result self.new.rest.now (next_decl_read self.old.rest.now) }
    {
        if self.takes(Mark::Comma) {
            let decl = self.decl()?;
            Ok(Some(decl))
        } else {
            Ok(None)
        }
    }

    /// The parameters that go on with a list.
    fn other_decls(&mut self, alloc: Global) -> Result<Vec<RangeDecl>, Fault>
        ensures { Gives (λ v. v.items) result self.new.rest.now (other_decls_read self.old.rest.now) }
    {
        let mut items = Vec::new(alloc);
        'more: while let Some(item) = self.next_decl()? {
            items.push(item)?;
        }
        Ok(items)
    }

    /// The fields of a relation.
    #[tactic(auto, using(crate::proofs::DeclarationSteps::fields_reads), unfolding(crate::specs::inner::Declarations::fields_do))]
    fn fields(&mut self, alloc: Global) -> Result<List<RangeDecl>, Fault>
        ensures { Gives (λ l. l.items) result self.new.rest.now (fields_read self.old.rest.now) }
    {
        let first = self.decl()?;
        let others = self.other_decls(alloc)?;
        list_of(first, others)
    }

    /// What follows `relation`.
    #[tactic(auto, using(homeo_syntax::proofs::SourceViews::workload_views), unfolding(crate::specs::inner::Declarations::relation_rest))]
    fn relation_after_word(&mut self, alloc: Global) -> Result<RelationDecl, Fault>
        ensures { Gives plain_relation result self.new.rest.now (relation_rest self.old.rest.now) }
    {
        let name = self.name()?;
        self.expect(Mark::OpenBracket)?;
        let slots = self.number()?;
        self.expect(Mark::CloseBracket)?;
        self.expect(Mark::Open)?;
        let fields = self.fields(alloc)?;
        self.expect(Mark::Close)?;
        Ok(RelationDecl {
            name,
            slots,
            fields,
        })
    }

    /// A relation, if one comes next.
    #[tactic(auto, using(crate::proofs::DeclarationSteps::next_relation_reads), unfolding(crate::specs::inner::Declarations::next_relation_do))]
    fn next_relation(&mut self, alloc: Global) -> Result<Option<RelationDecl>, Fault>
        ensures { Gives (option_map plain_relation) result self.new.rest.now (next_relation_read self.old.rest.now) }
    {
        if self.takes(Mark::Relation) {
            let relation = self.relation_after_word(alloc)?;
            Ok(Some(relation))
        } else {
            Ok(None)
        }
    }

    /// The relations, as many as come.
    pub(crate) fn relations(&mut self, alloc: Global) -> Result<List<RelationDecl>, Fault>
        ensures { Gives (λ l. relation_views l.items) result self.new.rest.now (relations_read self.old.rest.now) }
    {
        let mut items = List::new(alloc);
        'more: while let Some(item) = self.next_relation(alloc)? {
            items.push(item)?;
        }
        Ok(items)
    }

    /// The parameters of a transaction, which may be none.
    #[tactic(auto, using(crate::proofs::DeclarationSteps::parameters_reads), unfolding(crate::specs::inner::Declarations::parameters_do, crate::specs::inner::Declarations::after_first))]
    fn parameters(&mut self, alloc: Global) -> Result<List<RangeDecl>, Fault>
        ensures { Gives (λ l. l.items) result self.new.rest.now (parameters_read self.old.rest.now) }
    {
        match self.first_decl()? {
            Some(first) => {
                let others = self.other_decls(alloc)?;
                list_of(first, others)
            }
            None => Ok(List::new(alloc)),
        }
    }

    /// What follows `transaction`.
    #[tactic(auto, using(homeo_syntax::proofs::SourceViews::workload_views), unfolding(crate::specs::inner::Declarations::transaction_rest, homeo_syntax::specs::Rules::limit))]
    fn transaction_after_word(
        &mut self,
        alloc: Global,
        version: Version,
    ) -> Result<Transaction, Fault>
        ensures { Gives plain_transaction result self.new.rest.now (transaction_rest version self.old.rest.now) }
    {
        let name = self.name()?;
        self.expect(Mark::Open)?;
        let params = self.parameters(alloc)?;
        self.expect(Mark::Close)?;
        let body = self.block(alloc, version, LIMIT)?;
        Ok(Transaction { name, params, body })
    }

    /// A transaction, if one comes next.
    #[tactic(auto, using(crate::proofs::DeclarationSteps::next_transaction_reads), unfolding(crate::specs::inner::Declarations::next_transaction_do))]
    fn next_transaction(
        &mut self,
        alloc: Global,
        version: Version,
    ) -> Result<Option<Transaction>, Fault>
        ensures { Gives (option_map plain_transaction) result self.new.rest.now (next_transaction_read version self.old.rest.now) }
    {
        if self.takes(Mark::Transaction) {
            let transaction = self.transaction_after_word(alloc, version)?;
            Ok(Some(transaction))
        } else {
            Ok(None)
        }
    }

    /// The transactions, as many as come.
    pub(crate) fn transactions(
        &mut self,
        alloc: Global,
        version: Version,
    ) -> Result<List<Transaction>, Fault>
        ensures { Gives (λ l. transaction_views l.items) result self.new.rest.now (transactions_read version self.old.rest.now) }
    {
        let mut items = List::new(alloc);
        'more: while let Some(item) = self.next_transaction(alloc, version)? {
            items.push(item)?;
        }
        Ok(items)
    }
}
