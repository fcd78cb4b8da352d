ghost use Rattle.charts.specs.BitCharts.{BitFunctionLaws};
ghost use Rattle.charts.specs.Walks.{ColumnArities};

use super::chart::Chart;

/// Every column of a chart is a function of the arguments that are left at its depth.
pub fn columns_lawful<C: Chart>()
    ensures { ColumnArities C.Chart }
{}

/// A bit chart means the function of its table's entries, which has as many arguments and fits.
pub fn bit_functions_lawful()
    ensures { BitFunctionLaws }
{}
