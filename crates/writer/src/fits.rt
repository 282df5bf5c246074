// The numbers of a sheet fit the fields of its box. These calls do nothing: whoever calls them knows it afterwards.
ghost use Rattle.std.specs.List.{AllByRecursion};
ghost use Rattle.rwpk.specs.Laws.{SidesFit, RowFits};

use sheet::{Row, SheetSides};

pub(crate) fn sides_fit(sides: SheetSides)
    ensures { SidesFit sides }
{}

fn row_fits(row: Row)
    ensures { RowFits row }
{}

// Goes over the rows, since nothing is known of a row in a slice before it is read.
pub(crate) fn rows_fit(rows: &[Row])
    ensures { AllByRecursion RowFits rows.now }
{
    for row in rows {
        row_fits(*row);
    }
}
