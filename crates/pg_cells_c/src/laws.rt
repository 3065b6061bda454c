//! Laws of the builders, each as a function whose contract states it: an item that is pushed is
//! appended to the list, and a close makes the first bytes of the buffer the cell of the list.
ghost use Rattle.std.specs.Prelude.{◌≡◌, Some, is_none, ℕ};
ghost use Rattle.pg_base.specs.Cells.{frame};
ghost use Rattle.pg_base.specs.Counts.{count_bytes};
ghost use Rattle.pg_cells_c.specs.Builders.{array_head_in, array_width, count_width, entry_bytes, field_bytes};
ghost use Rattle.pg_cells_c.specs.Builders.{params_head, params_width};
ghost use Rattle.pg_cells_c.specs.Built.{ClosesList, OpensEmpty, PushesLast, PushesWrittenLast, wire_array};
ghost use Rattle.pg_cells_c.specs.Built.{wire_entries, wire_params, wire_record};

/// Arrays of cells.
pub(crate) fn arrays_are_built()
    ensures opened { OpensEmpty frame is_none array_width }
    ensures pushed { PushesLast frame is_none array_width }
    ensures written { PushesWrittenLast frame is_none array_width (λ cell. Some cell) 4 }
    ensures closed { (oid : ℕ) → ClosesList frame is_none array_width (array_head_in oid) (wire_array oid) }
{}

/// Parameters of a Bind message, which are cells.
pub(crate) fn params_are_built()
    ensures opened { OpensEmpty frame is_none params_width }
    ensures pushed { PushesLast frame is_none params_width }
    ensures written { PushesWrittenLast frame is_none params_width (λ cell. Some cell) 4 }
    ensures closed { ClosesList frame is_none params_width (λ b. params_head b.count) wire_params }
{}

/// Records of OIDs and cells.
pub(crate) fn records_are_built()
    ensures opened { OpensEmpty field_bytes (λ f. is_none f.1) count_width }
    ensures pushed { PushesLast field_bytes (λ f. is_none f.1) count_width }
    ensures written { (oid : ℕ) → PushesWrittenLast field_bytes (λ f. is_none f.1) count_width
        (λ cell. (oid, Some cell)) 8 }
    ensures closed { ClosesList field_bytes (λ f. is_none f.1) count_width (λ b. count_bytes b.count) wire_record }
{}

/// Values of hstore: keys and values.
pub(crate) fn hstores_are_built()
    ensures opened { OpensEmpty entry_bytes (λ e. is_none e.1) count_width }
    ensures pushed { PushesLast entry_bytes (λ e. is_none e.1) count_width }
    ensures closed { ClosesList entry_bytes (λ e. is_none e.1) count_width (λ b. count_bytes b.count) wire_entries }
{}
