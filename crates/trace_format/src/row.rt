//! Rows: the values of an event's fields.

ghost use Rattle.std.specs.Prelude.{◌≡◌, ◌≤◌, ◌↔◌, List, ℕ, [], IfOk, IfErr, IfSome, IsSome, OnOk, OnErr, Some, None, Ok, Err, length, map};
ghost use Rattle.std.specs.Result.{result_and};
ghost use Rattle.trace_format.specs.Cells.{IsRow, IsRowOf, datum_of};
ghost use Rattle.trace_format.specs.Definitions.{IsDefinition};
ghost use Rattle.trace_format.specs.Rows.{first_wrong, first_missing, row_of, IsBuilt};
ghost use Rattle.trace_format.specs.Values.{pairs_given};

use crate::borrowed_pair::{BorrowedPair, borrowed};
use crate::event::{EventDef, Field};
use crate::fault::{RowCause, RowFault};
use crate::field_value::FieldValue;
use crate::from_values::{take_values, written_pairs};
use crate::given::{are_new, bad_row, given_values, missing_field, wrong_pair};
use crate::in_order::read_in_order;
use crate::kind::Kind;
use crate::pair::Pair;
use crate::payload::{decode_values, encode_values};
use crate::value::Value;
use std::alloc::{AllocError, Global};
use std::marker::Model;
use std::mem;

/// A row of an event: a value for each of its fields.
#[derive(Drop)]
pub struct Row {
    kinds: Vec<Kind>,
    values: Vec<Value>,
}

impl Model for Row {
    ghost use Rattle.std.specs.Prelude.{map};
    ghost use Rattle.trace_format.specs.Cells.{Cells, IsRow, datum_of};

    ghost Value = { Cells };

    ghost view = { λ r. record { kinds = r.kinds.items; values = map datum_of r.values.items } };

    ghost invariant = { λ r. IsRow (record { kinds = r.kinds.items; values = map datum_of r.values.items }) };
}

/// Memory in which a row is made: that of an earlier one, so that a row of no more fields takes no allocation for the lists of its types and
/// values. It means nothing: no two are told apart by what they hold or how much room they have.
#[derive(Drop)]
pub struct RowMemory {
    kinds: Vec<Kind>,
    values: Vec<Value>,
}

impl Model for RowMemory {
    ghost Value = { Unit {0} };

    ghost view = { λ m. tt };
}

impl RowMemory {
    /// Memory without room.
    pub fn new(alloc: Global) -> RowMemory {
        RowMemory {
            kinds: Vec::new(alloc),
            values: Vec::new(alloc),
        }
    }
}

/// The memory of a row that is not used any more.
impl From<Row> for RowMemory {
    fn from(row: Row) -> RowMemory {
        let Row { kinds, values } = row;
        RowMemory { kinds, values }
    }
}

impl Row {
    ghost use Rattle.trace_format.specs.Cells.{Cells, datum_of, IsRow, IsRowOf, StandByName, payload_of, size_of_all};
    ghost use Rattle.trace_format.specs.Definitions.{IsDefinition};
    ghost use Rattle.trace_format.specs.Pairs.{Give, IsRefusedRow};
    ghost use Rattle.trace_format.specs.Decoding.{row_from};
    ghost use Rattle.trace_format.specs.Values.{pairs_given};

    /// A row of no field.
    pub fn new(alloc: Global) -> Row
        ensures { result ≡ record { kinds = []; values = [] } }
    {
        Row {
            kinds: Vec::new(alloc),
            values: Vec::new(alloc),
        }
    }

    /// The row that pairs of field names and texts give. Each field is in one pair, in any order.
    ///
    /// It is refused as `BadRow` at the first pair whose name is unknown or repeated or whose text is no value of its field, and with
    /// none such at the first field that no pair names. `Memory` comes where an allocation is refused.
    pub fn build(alloc: Global, def: &EventDef, pairs: &[Pair]) -> Result<Row, RowFault>
        ensures row { IfOk result (IsRowOf def.now) }
        // As a map from names, the row is the pairs.
        ensures map { IfOk result (Give def.now.fields pairs.now) }
        // A row that the pairs give as a map is built, unless memory is refused.
        ensures only { (row : Cells) → IsRowOf def.now row → Give def.now.fields pairs.now row → IsBuilt result (Ok row) }
        // Other pairs are refused at the first that is wrong, else at the first field that is missing.
        ensures refused { IfErr result (IsRefusedRow def.now pairs.now) }
        // The value at a field's name is the one at the field's index.
        ensures names { IfOk result (λ row. StandByName def.now.fields row.values) }
        // What is built, and each refusal with its cause and the pair to blame, as one function of the pairs.
        ensures exact { IsBuilt result (row_of def.now pairs.now) }
    {
        let pairs = borrowed(alloc, pairs)?;
        let mut row = Row::new(alloc);
        match row.rebuild(alloc, def, &pairs) {
            Ok(()) => Ok(row),
            Err(fault) => Err(fault),
        }
    }

    /// Makes it the row that `build` makes, in its own memory: a row of no more fields takes no allocation for the lists of its types and values.
    /// Pairs that name the fields in order take one pass and no search. After a refusal it has no field.
    #[inline(always)]
    pub fn rebuild(
        &mut self,
        alloc: Global,
        def: &EventDef,
        pairs: &[BorrowedPair<'_>],
    ) -> Result<(), RowFault>
        ensures row { OnOk result (IsRowOf def.now self.new) }
        ensures map { OnOk result (Give def.now.fields pairs.now self.new) }
        ensures only { (row : Cells) → IsRowOf def.now row → Give def.now.fields pairs.now row
            → IsBuilt (result_and result (Ok self.new)) (Ok row) }
        ensures refused { IfErr result (IsRefusedRow def.now pairs.now) }
        ensures names { OnOk result (StandByName def.now.fields self.new.values) }
        ensures exact { IsBuilt (result_and result (Ok self.new)) (row_of def.now pairs.now) }
        ensures empty { OnErr result (self.new ≡ record { kinds = []; values = [] }) }
    {
        match fill(alloc, def, pairs, &mut self.kinds, &mut self.values) {
            Ok(()) => Ok(()),
            Err(fault) => {
                clear(&mut self.kinds, &mut self.values);
                Err(fault)
            }
        }
    }

    /// Makes it the row that `rebuild` makes of the pairs that give the values to the fields in order of declaration (`pairs_given`). No text is written
    /// for a number that its field holds. After a refusal it has no field.
    #[inline(always)]
    pub fn rebuild_of_values(
        &mut self,
        alloc: Global,
        def: &EventDef,
        values: &[FieldValue<'_>],
    ) -> Result<(), RowFault>
        ensures row { OnOk result (IsRowOf def.now self.new) }
        ensures exact { IsBuilt (result_and result (Ok self.new)) (row_of def.now (pairs_given def.now.fields values.now)) }
        ensures empty { OnErr result (self.new ≡ record { kinds = []; values = [] }) }
    {
        match fill_with_values(alloc, def, values, &mut self.kinds, &mut self.values) {
            Ok(()) => Ok(()),
            Err(fault) => {
                clear(&mut self.kinds, &mut self.values);
                Err(fault)
            }
        }
    }

    /// Writes the row's payload: the fields in order of declaration with nothing between them, numbers in two's complement with the
    /// lowest byte first, texts with zeros behind them. `out` has as many bytes as the payload.
    pub fn encode(&self, out: &mut [u8])
        requires { length out.old ≡ size_of_all self.now.kinds }
        ensures { out.new ≡ payload_of self.now }
    {
        encode_values(&self.kinds, &self.values, out);
    }

    /// The row of an event whose payload the bytes are, if they are the payload of one.
    pub fn decode(alloc: Global, def: &EventDef, bytes: &[u8]) -> Result<Option<Row>, AllocError>
        // It finds a row exactly where the bytes are that row's payload.
        ensures row { IfOk result (λ found. (row : Cells) → (found ≡ Some row) ↔ (IsRowOf def.now row × (bytes.now ≡ payload_of row))) }
        // The value at a field's name is the one at the field's index.
        ensures names { IfOk result (λ found. IfSome found (λ row. StandByName def.now.fields row.values)) }
        // What is found as one function of the bytes.
        ensures exact { IfOk result (λ found. found ≡ row_from def.now bytes.now) }
    {
        Row::decode_in(alloc, &mut RowMemory::new(alloc), def, bytes)
    }

    /// The row that `decode` finds, in the memory of an earlier one. The row takes the memory's room with it; without a row the memory keeps what
    /// room it has. What the memory holds afterwards is not said.
    pub fn decode_in(
        alloc: Global,
        memory: &mut RowMemory,
        def: &EventDef,
        bytes: &[u8],
    ) -> Result<Option<Row>, AllocError>
        ensures row { IfOk result (λ found. (row : Cells) → (found ≡ Some row) ↔ (IsRowOf def.now row × (bytes.now ≡ payload_of row))) }
        ensures names { IfOk result (λ found. IfSome found (λ row. StandByName def.now.fields row.values)) }
        ensures exact { IfOk result (λ found. found ≡ row_from def.now bytes.now) }
    {
        let fields = def.fields();
        if !decode_values(alloc, fields, bytes, &mut memory.values)? {
            return Ok(None);
        }
        fill_kinds(fields, &mut memory.kinds)?;
        Ok(Some(row_in(alloc, &mut memory.kinds, &mut memory.values)))
    }

    /// The values, in order of declaration.
    pub fn values(&self) -> &[Value]
        ensures values { map datum_of result.now ≡ self.now.values }
        ensures row { IsRow self.now }
    {
        self.values.as_slice()
    }
}

/// Leaves nothing in the lists of a row that was refused.
fn clear(kinds: &mut Vec<Kind>, values: &mut Vec<Value>)
    ensures kinds { kinds.new.items ≡ [] }
    ensures values { values.new.items ≡ [] }
{
    kinds.clear();
    values.clear();
}

/// Fills two lists with the types of an event's fields and the values that pairs give them: in one pass where the pairs name the fields in order,
/// else field by field. After a refusal what the lists hold doesn't matter.
#[inline(always)]
fn fill(
    alloc: Global,
    def: &EventDef,
    pairs: &[BorrowedPair<'_>],
    kinds: &mut Vec<Kind>,
    values: &mut Vec<Value>,
) -> Result<(), RowFault>
    ensures definition { IsDefinition def.now }
    ensures row { OnOk result (IsRowOf def.now (record { kinds = kinds.new.items; values = map datum_of values.new.items })) }
    ensures exact { IsBuilt (result_and result (Ok (record { kinds = kinds.new.items; values = map datum_of values.new.items })))
        (row_of def.now pairs.now) }
{
    let fields = def.fields();
    if read_in_order(alloc, fields, pairs, kinds, values)? {
        return Ok(());
    }
    fill_by_name(alloc, def, pairs, kinds, values)
}

/// Likewise, field by field.
#[inline(never)]
fn fill_by_name(
    alloc: Global,
    def: &EventDef,
    pairs: &[BorrowedPair<'_>],
    kinds: &mut Vec<Kind>,
    values: &mut Vec<Value>,
) -> Result<(), RowFault>
    ensures row { OnOk result (IsRowOf def.now (record { kinds = kinds.new.items; values = map datum_of values.new.items })) }
    ensures exact { IsBuilt (result_and result (Ok (record { kinds = kinds.new.items; values = map datum_of values.new.items })))
        (row_of def.now pairs.now) }
{
    let fields = def.fields();
    if !given_values(alloc, fields, pairs, values)? {
        return Err(refusal(alloc, def, pairs));
    }
    if !are_new(fields, pairs) {
        return Err(refusal(alloc, def, pairs));
    }
    fill_kinds(fields, kinds)?;
    Ok(())
}

/// Why pairs give no row of an event: the first that is wrong, else the first field that is missing.
fn refusal(alloc: Global, def: &EventDef, pairs: &[BorrowedPair<'_>]) -> RowFault
    requires { first_wrong def.now.fields [] pairs.now ≡ None → IsSome (first_missing def.now.fields pairs.now) }
    ensures { IsBuilt (Err result) (row_of def.now pairs.now) }
{
    if let Some((name, cause, at)) = wrong_pair(def.fields(), pairs) {
        return bad_row(alloc, name, cause, Some(at));
    }
    match missing_field(def.fields(), pairs) {
        Some(name) => bad_row(alloc, name, RowCause::Missing, None),
        None => unreachable!(),
    }
}

/// As `fill`, with the values that are given to the fields in order of declaration: in one pass where each field holds its value, else by the texts
/// of all values.
#[inline(always)]
fn fill_with_values(
    alloc: Global,
    def: &EventDef,
    given: &[FieldValue<'_>],
    kinds: &mut Vec<Kind>,
    values: &mut Vec<Value>,
) -> Result<(), RowFault>
    ensures row { OnOk result (IsRowOf def.now (record { kinds = kinds.new.items; values = map datum_of values.new.items })) }
    ensures exact { IsBuilt (result_and result (Ok (record { kinds = kinds.new.items; values = map datum_of values.new.items })))
        (row_of def.now (pairs_given def.now.fields given.now)) }
{
    let fields = def.fields();
    if take_values(alloc, fields, given, kinds, values)? {
        return Ok(());
    }
    let pairs = written_pairs(alloc, fields, given)?;
    fill_with_pairs(alloc, def, pairs, kinds, values)
}

/// Likewise, with pairs of texts of their own.
#[cold]
#[inline(never)]
fn fill_with_pairs(
    alloc: Global,
    def: &EventDef,
    pairs: Vec<Pair>,
    kinds: &mut Vec<Kind>,
    values: &mut Vec<Value>,
) -> Result<(), RowFault>
    ensures row { OnOk result (IsRowOf def.now (record { kinds = kinds.new.items; values = map datum_of values.new.items })) }
    ensures exact { IsBuilt (result_and result (Ok (record { kinds = kinds.new.items; values = map datum_of values.new.items })))
        (row_of def.now pairs.items) }
{
    let lent = borrowed(alloc, &pairs)?;
    fill(alloc, def, &lent, kinds, values)
}

/// Fills a list with the types of fields. One that has had as many elements before takes no allocation.
fn fill_kinds(fields: &[Field], kinds: &mut Vec<Kind>) -> Result<(), AllocError>
    ensures { OnOk result (kinds.new.items ≡ map (λ f. f.kind) fields.now) }
{
    kinds.clear();
    kinds.reserve_exact(fields.len())?;
    for field in fields {
        kinds.push_reserved(field.kind);
    }
    Ok(())
}

/// The row of types and values, whose lists are left without room.
#[inline(always)]
fn row_in(alloc: Global, kinds: &mut Vec<Kind>, values: &mut Vec<Value>) -> Row
    requires { IsRow (record { kinds = kinds.old.items; values = map datum_of values.old.items }) }
    ensures { result ≡ record { kinds = kinds.old.items; values = map datum_of values.old.items } }
{
    Row {
        kinds: mem::replace(kinds, Vec::new(alloc)),
        values: mem::replace(values, Vec::new(alloc)),
    }
}
