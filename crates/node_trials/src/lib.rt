//! Node charts of known functions, as tests.
#![tactic(auto)]

#[cfg(test)]
mod tests {
    use charts::{Chart, Recoding, number_classes, value_at};
    use nodes::NodeChart;

    // Kept: shared by the tests of both kinds of charts, it would be a public function with a contract of its own.
    fn recoded(
        chart: &mut NodeChart,
        bound: usize,
        codes: usize,
        places: &[usize],
        class_of: &[usize],
    ) -> Result<(), u8> {
        let recoding = Recoding {
            bound,
            codes,
            places,
            class_of,
        };
        chart.recode(&recoding).map_err(|refusal| refusal.number())
    }

    // Two arguments more in front: 1 where both are 1, and else what the chart means.
    fn with_a_pair(chart: &mut NodeChart) -> Result<(), u8> {
        let top = chart.top();
        recoded(chart, 0, 2, &[top, 1], &[0, 0, 0, 1])
    }

    // x1 x2 + x3 x4 + x5 x6 has 6 nodes in this order, and 14 in the order x1 x3 x5 x2 x4 x6.
    #[test]
    fn the_order_decides_the_size(rt: HostRuntime) {
        let mut chart = NodeChart::empty();
        for _ in 0..3 {
            assert_eq!(rt; with_a_pair(&mut chart), Ok(()));
        }
        assert_eq!(rt; chart.size(), 6);
        assert!(rt; value_at(&chart, 48) && value_at(&chart, 3) && !value_at(&chart, 42));
        assert_eq!(rt; chart.swap(1).map_err(|refusal| refusal.number()), Ok(()));
        assert_eq!(rt; chart.swap(3).map_err(|refusal| refusal.number()), Ok(()));
        assert_eq!(rt; chart.swap(2).map_err(|refusal| refusal.number()), Ok(()));
        assert_eq!(rt; chart.size(), 14);
        assert!(rt; value_at(&chart, 36) && value_at(&chart, 9) && !value_at(&chart, 56));
    }

    fn swapped(mut chart: NodeChart) -> NodeChart {
        let _ = chart.swap(1);
        chart
    }

    // A chart that is passed by value is copied, and stays as it was.
    #[test]
    fn copies(rt: HostRuntime) {
        let mut chart = NodeChart::empty();
        for _ in 0..3 {
            assert_eq!(rt; with_a_pair(&mut chart), Ok(()));
        }
        let other = swapped(chart);
        assert_eq!(rt; (chart.size(), other.size()), (6, 8));
    }

    // The comparison of two numbers of two bits has 9 nodes, and 6 after one swap.
    #[test]
    fn the_comparison(rt: HostRuntime) {
        let mut chart = NodeChart::empty();
        let equal = [1, 0, 0, 0, 0, 1, 0, 0, 0, 0, 1, 0, 0, 0, 0, 1];
        assert_eq!(rt; recoded(&mut chart, 0, 4, &[0, 1], &equal), Ok(()));
        assert_eq!(rt; chart.size(), 9);
        let mut strip = [0; 4];
        assert_eq!(rt; number_classes(&chart, 2, &mut strip), Some(4));
        assert_eq!(rt; chart.swap(3).map_err(|refusal| refusal.number()), Err(11));
        assert_eq!(rt;
            chart.swap(usize::MAX).map_err(|refusal| refusal.number()),
            Err(11)
        );
        assert_eq!(rt; chart.swap(1).map_err(|refusal| refusal.number()), Ok(()));
        assert_eq!(rt; chart.size(), 6);
        assert_eq!(rt; number_classes(&chart, 2, &mut strip), Some(2));
    }

    // Numbers that a chart lacks mean zero at every depth.
    #[test]
    fn strange_places(rt: HostRuntime) {
        let mut chart = NodeChart::empty();
        assert_eq!(rt; with_a_pair(&mut chart), Ok(()));
        let top = chart.top();
        assert!(rt; chart.same(1, top, 0) && !chart.same(0, top, 0));
        assert!(rt; chart.same(0, usize::MAX, 0) && chart.same(usize::MAX, 77, 0));
        assert_eq!(rt; chart.step(0, usize::MAX, true), 0);
        assert_eq!(rt; chart.step(2, 77, true), 77);
        assert!(rt; !chart.end(77) && chart.end(1));
        assert_eq!(rt; recoded(&mut chart, 3, 0, &[0], &[0]), Err(11));
        assert_eq!(rt; recoded(&mut chart, 0, 1, &[0], &[0, 1]), Err(11));
    }
}
