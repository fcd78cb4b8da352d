//! Charts on small functions.
#![tactic(auto)]

#[cfg(test)]
mod tests {
    use charts::{BitChart, Chart, Inverting, Recoding, Stretch, number_classes, value_at, walk};
    use std::test::Fail;

    // Kept: shared by the tests of both kinds of charts, it would be a public function with a contract of its own.
    fn recoded(
        chart: &mut BitChart,
        bound: usize,
        codes: usize,
        places: &[Stretch],
        class_of: &[usize],
    ) -> Result<(), u8> {
        let recoding = Recoding {
            bound,
            codes,
            places,
            class_of,
        };
        chart.recode(&recoding).map_err(|refusal| refusal.number())
    }

    // x0 x1 + x2 x3: the entries 3, 7, 11 and 12 to 15
    fn pairs() -> Option<BitChart> {
        let (o, l) = (false, true);
        BitChart::with_entries(4, &[o, o, o, l, o, o, o, l, o, o, o, l, l, l, l, l])
    }

    #[test]
    fn twelve_arguments_fit(rt: HostRuntime) -> Result<(), Fail> {
        assert!(rt; BitChart::with_entries(13, &[false; 8192]).is_none());
        assert!(rt; BitChart::with_entries(12, &[false; 4095]).is_none());
        let Some(mut chart) = BitChart::with_entries(12, &[true; 4096]) else {
            return Err(Fail::new("12 arguments refused"));
        };
        let top = chart.top();
        assert_eq!(rt; recoded(&mut chart, 0, 1, &[top], &[0, 0]), Err(20));
        assert!(rt; chart.count() == 12);
        assert_eq!(rt; recoded(&mut chart, 0, 0, &[top], &[0]), Ok(()));
        assert!(rt; value_at(&chart, 4095));
        Ok(())
    }

    #[test]
    fn swaps_change_the_classes(rt: HostRuntime) -> Result<(), Fail> {
        let Some(chart) = pairs() else {
            return Err(Fail::new("refused"));
        };
        let mut chart = Inverting::new(chart);
        let mut strip = [chart.top(); 4];
        assert_eq!(rt; number_classes(&chart, 2, &mut strip), Some(2));
        assert!(rt; chart.same(2, strip[1], walk(&chart, 2, 3)));
        assert_eq!(rt; chart.swap(3).map_err(|refusal| refusal.number()), Err(11));
        assert_eq!(rt;
            chart.swap(usize::MAX).map_err(|refusal| refusal.number()),
            Err(11)
        );
        assert_eq!(rt; chart.swap(1).map_err(|refusal| refusal.number()), Ok(()));
        assert!(rt; !value_at(&chart, 10) && value_at(&chart, 12));
        assert_eq!(rt; number_classes(&chart, 2, &mut strip), Some(4));
        Ok(())
    }

    #[test]
    fn short_strips_are_refused(rt: HostRuntime) -> Result<(), Fail> {
        let Some(chart) = pairs() else {
            return Err(Fail::new("refused"));
        };
        let top = chart.top();
        let mut strip = [top; 4];
        assert_eq!(rt; number_classes(&chart, 2, &mut strip[0..3]), None);
        assert_eq!(rt; number_classes(&chart, 5, &mut strip), None);
        assert!(rt; chart.same(0, strip[0], top));
        assert_eq!(rt; number_classes(&chart, 2, &mut strip), Some(2));
        assert!(rt; chart.same(0, strip[2], top));
        Ok(())
    }

    // A place of another depth means zero, and so does all below it.
    #[test]
    fn strangers_mean_zero(rt: HostRuntime) -> Result<(), Fail> {
        let Some(chart) = BitChart::with_entries(2, &[true; 4]) else {
            return Err(Fail::new("refused"));
        };
        let mut place = BitChart::empty().top();
        for depth in 0..2 {
            assert!(rt; !chart.same(depth, place, walk(&chart, depth, 0)));
            place = chart.step(depth, place, true);
        }
        assert!(rt; !chart.end(place));
        assert!(rt; chart.end(chart.step(7, walk(&chart, 2, 3), false)));
        Ok(())
    }

    // Three distinct columns, 1100, 1011 and 1010, with x0, x1 and x2 bound.
    const FIVE: &[u8; 32] = b"11001011110010101100101010101011";
    // Whether two numbers of two bits are equal: a1, a2, b1, b2.
    const COMPARED: &[u8; 16] = b"1000010000100001";

    // The chart of a function whose values stand as digits.
    fn of_digits(n: usize, digits: &[u8]) -> Option<BitChart> {
        let mut entries = [false; 32];
        for (entry, digit) in entries.iter_mut().zip(digits.iter()) {
            *entry = *digit == b'1';
        }
        if digits.len() > 32 {
            return None;
        }
        BitChart::with_entries(n, &entries[0..digits.len()])
    }

    #[test]
    fn known_class_counts(rt: HostRuntime) -> Result<(), Fail> {
        let Some(five) = of_digits(5, FIVE) else {
            return Err(Fail::new("five inputs refused"));
        };
        for (a, digit) in FIVE.iter().enumerate() {
            assert_eq!(rt; value_at(&five, a), *digit == b'1');
        }
        let mut strip = [five.top(); 8];
        assert_eq!(rt; number_classes(&five, 3, &mut strip), Some(3));
        assert!(rt; five.same(3, walk(&five, 3, 0), walk(&five, 3, 4)));
        assert!(rt; !five.same(3, walk(&five, 3, 1), walk(&five, 3, 3)));
        let Some(mut compared) = of_digits(4, COMPARED) else {
            return Err(Fail::new("four inputs refused"));
        };
        assert_eq!(rt; number_classes(&compared, 2, &mut strip), Some(4));
        assert_eq!(rt;
            compared.swap(1).map_err(|refusal| refusal.number()),
            Ok(())
        );
        assert_eq!(rt; number_classes(&compared, 2, &mut strip), Some(2));
        Ok(())
    }

    #[test]
    fn largest_numbers(rt: HostRuntime) -> Result<(), Fail> {
        let Some(mut chart) = of_digits(5, FIVE) else {
            return Err(Fail::new("refused"));
        };
        let most = usize::MAX;
        let top = chart.top();
        let mut strip = [top; 2];
        assert!(rt; chart.same(0, chart.step(most, top, true), top));
        let first = BitChart::empty().top();
        assert!(rt; !chart.end(top) && chart.end(first) && !chart.same(most, top, first));
        assert_eq!(rt; number_classes(&chart, most, &mut strip), None);
        assert_eq!(rt; recoded(&mut chart, most, 1, &[top], &[0, 0]), Err(11));
        assert_eq!(rt; recoded(&mut chart, 0, most, &[top], &[0]), Err(11));
        assert_eq!(rt; recoded(&mut chart, 0, 1, &[top], &[0, most]), Err(11));
        assert!(rt; BitChart::with_entries(most, &[]).is_none());
        Ok(())
    }

    #[test]
    fn recodes_need_places(rt: HostRuntime) -> Result<(), Fail> {
        let Some(mut chart) = pairs() else {
            return Err(Fail::new("refused"));
        };
        let mut strip = [chart.top(); 4];
        assert_eq!(rt; number_classes(&chart, 2, &mut strip), Some(2));
        assert_eq!(rt; recoded(&mut chart, 2, 1, &strip[0..2], &[0, 2]), Err(11));
        assert_eq!(rt; recoded(&mut chart, 2, 1, &strip[0..2], &[0]), Err(11));
        assert_eq!(rt; recoded(&mut chart, 5, 1, &strip[0..2], &[0, 1]), Err(11));
        assert!(rt; value_at(&chart, 12) && !value_at(&chart, 4));
        assert_eq!(rt; recoded(&mut chart, 2, 1, &strip[0..2], &[0, 1]), Ok(()));
        assert!(rt; chart.count() == 3);
        assert!(rt; value_at(&chart, 4) && value_at(&chart, 3) && !value_at(&chart, 1));
        Ok(())
    }
}
